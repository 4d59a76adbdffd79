//! What the names, constants and types of a patch mean, as definitions over its trees; docs/LANGUAGE.md tells the same in
//! words. There is no code here: the crates that look up names, evaluate constants and check bodies meet these definitions.
//!
//! Names: what a name may stand for (`Declared`), what is visible at a place and what a path finds there (`Scopes`), the
//! places where names are used or declared (`Sites`, `BodySites`, `PatchSites`, with `SiteEquations` for each kind of part), the
//! main declaration (`Mains`), what needs itself (`Needs`), and what is wrong with names (`NameRows`, `NameFaults`). `Exact` says
//! when an answer names a fault exactly, and how checks are put together that do.
//!
//! Types: types and values (`Types`), conversions and operators (`Conversions`), the values of constants (`Constants`), the
//! types of expressions (`TypeOf`), the places where types have to fit (`Demands`, `MemberDemands`, `Endings`), what is wrong
//! there (`TypeRows`, `Parameters`, `TypeFaults`), and the instances of a patch (`Instances`). `TypeEquations`,
//! `DemandEquations` and `BodyEquations` say for each kind of part what these give.
//!
//! Runs: stores (`Stores`), the state of a run (`World`) and what changes it (`Acts`), what expressions give (`Eval`), what
//! statements do (`Performs`, `Resume`), calls, handlers and deliveries (`Calls`), the tree of instances with its leaves
//! (`Nodes`, computed by `Growth`), chains (`Chains`), order and latency (`Turns`), what chains carry (`Linked`), and whole
//! runs (`PatchRun`). `ExecEquations` says for each kind of expression and statement what it gives or does, and `Rules` says by
//! rules what the rest of a `main` does, which is proved to be what `Resume` computes.
#![tactic(auto)]
