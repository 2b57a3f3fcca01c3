ghost use Rattle.std.specs.Prelude.{◌≡◌};
ghost use Rattle.xs_top.specs.Texts.{status_number};

use xs_base::Memory;
use xs_dryrun::{PlanFault, What};
use xs_fault::{FieldFault, SceneFault};
use xs_rawfile::LevelCode;
use xs_words::{Usage, WordsFault};

/// How a run ended.
#[derive(Debug, Drop)]
pub enum Status {
    /// All was done.
    Ok,
    /// The words are no command.
    Usage(Usage),
    /// There is no scene, or it has a fault.
    Scene(SceneFault),
    /// The file of a drawing, told by its number, is not there or has a fault.
    Level { drawing: u32, code: LevelCode },
    /// The library had a fault.
    ReadFault,
    /// The shelf or the notes had a fault.
    WriteFault,
    /// There was no memory.
    Memory,
    /// A limit is passed; `limit` is the greatest number that there may be.
    Limit { what: What, limit: u64 },
    /// This is not built yet.
    NotYet,
}

impl From<Memory> for Status {
    ghost use Rattle.xs_top.specs.declared.status.Status.TheVariants as answers;

    ghost from_gives = { λ _ status. status ≡ answers.Memory };

    fn from(_error: Memory) -> Status {
        Status::Memory
    }
}

impl From<WordsFault> for Status {
    ghost use Rattle.xs_top.specs.Texts.{words_status};

    ghost from_gives = { λ fault status. status ≡ words_status fault };

    fn from(fault: WordsFault) -> Status {
        match fault {
            WordsFault::Usage(usage) => Status::Usage(usage),
            WordsFault::Memory => Status::Memory,
        }
    }
}

impl From<FieldFault> for Status {
    ghost use Rattle.xs_top.specs.Texts.{scene_status};

    ghost from_gives = { λ fault status. status ≡ scene_status fault };

    fn from(fault: FieldFault) -> Status {
        match fault {
            FieldFault::Fault(fault) => Status::Scene(fault),
            FieldFault::Memory => Status::Memory,
        }
    }
}

impl From<PlanFault> for Status {
    ghost use Rattle.xs_top.specs.Texts.{plan_status};

    ghost from_gives = { λ fault status. status ≡ plan_status fault };

    fn from(fault: PlanFault) -> Status {
        match fault {
            PlanFault::Limit { what, limit } => Status::Limit { what, limit },
            PlanFault::Memory => Status::Memory,
        }
    }
}

/// The number with which the program ends.
pub fn status_number(status: &Status) -> u8
    ensures { result ≡ status_number status.now }
{
    match status {
        Status::Ok => 0,
        Status::Usage(_) => 1,
        Status::Scene(_) => 2,
        Status::Level { .. } => 3,
        Status::ReadFault => 4,
        Status::WriteFault => 5,
        Status::Memory => 6,
        Status::Limit { .. } => 7,
        Status::NotYet => 8,
    }
}
