ghost use Rattle.std.specs.Prelude.{List, ◌++◌, ◌≡◌};
ghost use Rattle.wasm_tree.specs.declared.instr.Instr.{Instr};
ghost use Rattle.wasm_tree.specs.Reduce.{onto, pieces};
ghost use Rattle.wasm_steps.specs.Steps.{join};
ghost use Rattle.straight_code.specs.Straight.{AreStraight, plains};

/// Straight code in front of other code stands in front of the first of its sequences.
pub fn straight_code_stands()
    ensures { (code rest : List Instr) → AreStraight code → pieces (code ++ rest) ≡ onto (join (plains code)) (pieces rest) }
{}
