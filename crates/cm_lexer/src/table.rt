ghost use Rattle.std.specs.Prelude.{◌≡◌, map};
ghost use Rattle.cm_tree.specs.Pieces as spec;

/// What stands beside this text in a table.
pub fn entry<T: Copy>(mut table: &[(&[u8], T)], text: &[u8]) -> Option<T>
    ensures { result ≡ spec.entry (map (λ e. (e.0.now, e.1)) table.entry.now) text.now }
{
    while let [first, others @ ..] = table {
        if first.0 == text {
            return Some(first.1);
        }
        table = others;
    }
    None
}
