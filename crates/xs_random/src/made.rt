use crate::failure::Failure;

/// What was made from numbers that are in range.
pub fn made<T>(thing: Option<T>) -> Result<T, Failure> {
    match thing {
        Some(thing) => Ok(thing),
        None => Err(Failure::OutOfRange),
    }
}
