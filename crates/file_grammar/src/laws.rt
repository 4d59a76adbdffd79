ghost use Rattle.std.specs.Prelude.{ℕ, ◌≡◌, List, [], Ok, Err};
ghost use Rattle.cm_base.specs.declared.place.Place.{Place};
ghost use Rattle.cm_tree.specs.declared.token.Token.{Token};
ghost use Rattle.cm_tree.specs.declared.decl.Decl.{Decl};
ghost use Rattle.cm_tree.specs.declared.file.File.{File};
ghost use Rattle.cm_tree.specs.Faults.{IsFile, IsFault, place_of};
ghost use Rattle.file_grammar.specs.Files.{decls};
ghost use Rattle.token_reader.specs.Local.{Local};

/// What is answered on a file rests on the tokens up to the one looked at alone, so a refusal holds for all files that
/// begin with the tokens through the refused one.
pub fn reads_no_further()
    ensures { (n : ℕ) → Local (decls n) }
{}

/// What is answered is the file that the tokens spell, no higher than `n`; each such file is answered, so that there is
/// one at most; and a refusal is at a place through which no such file begins.
pub fn reads_files()
    ensures spelled { (n : ℕ) (ts : List Token) (all : List Decl) (rest : List Token) → decls n ts ≡ Ok (all, rest) → (rest ≡ []) × IsFile n ts (record { decls = all }) }
    ensures answered { (n : ℕ) (ts : List Token) (f : File) → IsFile n ts f → decls n ts ≡ Ok (f.decls, []) }
    ensures refused { (n : ℕ) (ts rest : List Token) (last : Place) → decls n ts ≡ Err rest → IsFault n ts last (place_of last rest) }
{}
