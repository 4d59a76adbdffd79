use cm_base::Name;

/// The names of a source of the form: of its processor, of its input stream and of its output stream.
#[derive(Debug, Drop)]
pub struct Through {
    pub processor: Name,
    pub input: Name,
    pub output: Name,
}
