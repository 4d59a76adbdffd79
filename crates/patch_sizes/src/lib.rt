//! The sizes of a patch in which every factor is 1, as definitions over its trees; docs/LANGUAGE.md, "Sizes", tells the same in
//! words. There is no code here. `Sizes` counts expressions, `StmtSizes` statements, `Splits` the split points of a `main`, and
//! `PatchSizes` whole patches: the expanded size, the cost and the bytes of memory. The same sizes of specialised programs are those
//! of `cm_core`.
#![tactic(auto)]
