//! What a patch of the form that is compiled so far means, by the definitions of `cm_meaning`. It has no functions: `module_build`
//! and `commands` cite its lemmas, and their contracts state what comes of them. `specs/Parts` puts such a patch together from
//! its names and places, and `specs/Patches` says when files are one. `proofs/Known` and `Grown` work out its tree, `Steps` what a
//! frame does, `Sized` its sizes, and `Words` that its two endpoints stand at different places; `Formed` gives all of it for files.
#![tactic(auto)]
