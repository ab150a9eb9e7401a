// The edge cases: one list, computed from the definitions in one proof.
#![tactic(auto)]

ghost use Rattle.edges.specs.Edges.{EdgesStand};

// The edge cases of arithmetic, of forms, of a book and of the engine come out as listed.
pub fn edges_stand()
    ensures { EdgesStand }
{}
