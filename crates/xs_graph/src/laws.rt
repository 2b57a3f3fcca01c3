//! Laws of paths, cycles and chains.
ghost use Rattle.std.specs.Prelude.{◌≡◌, ◌<◌, ◌↔◌, ℕ, true, Contains, length};
ghost use Rattle.xs_graph.specs.Paths.{Links, successors, LiesOnCycle, HasChain, has_chain};
ghost use Rattle.xs_graph.specs.Cycles.{lies_on_cycle};

/// The test for a cycle tells whether a node lies on one.
pub fn cycles_are_told_node_by_node()
    ensures { (links : Links) (a : ℕ) → (lies_on_cycle links a ≡ true) ↔ LiesOnCycle links a }
{}

/// The test for a chain tells whether one begins at a node.
pub fn chains_are_told_link_by_link()
    ensures { (links : Links) (steps a : ℕ) → (has_chain links steps a ≡ true) ↔ HasChain links steps a }
{}

/// Where each link leads to a node and no node lies on a cycle, a chain has fewer steps than there are nodes.
pub fn chains_without_a_cycle_are_short()
    ensures { (links : Links) → ((a c : ℕ) → Contains (successors links a) c → c < length links)
        → ((a : ℕ) → a < length links → LiesOnCycle links a → ⊥)
        → (steps a : ℕ) → a < length links → HasChain links steps a → steps < length links }
{}
