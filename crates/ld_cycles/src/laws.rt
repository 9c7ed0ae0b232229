//! That searches with a bound lose nothing. The functions do nothing: each is there for what it
//! ensures.
ghost use Rattle.std.specs.Prelude.{◌≡◌, ◌↔◌, ℕ, List, None, true, length};
ghost use Rattle.ld_cycles.specs.Graphs.{AddUp, Graph, LeadsTo, expanded_size, first_on_cycle, leads_within};

/// One node leads to another exactly where it leads there by no more steps than there are nodes.
pub fn ways_are_found()
    ensures { (g : Graph) (a b : ℕ) → (leads_within g (length g) a b ≡ true) ↔ LeadsTo g a b }
{}

/// Where no node leads to itself, what a node expands to is its own size and what the nodes to
/// which it leads expand to.
pub fn sizes_add_up()
    ensures { (own : List ℕ) (g : Graph) → length own ≡ length g → first_on_cycle g ≡ None
        → AddUp own g (expanded_size own g) }
{}
