// What a rounding answers: a double or +inf, and whether it is worth exactly what was rounded. The pattern counts either way, so that no
// Option says this.
#[derive(Clone, Copy)]
pub struct Rounded {
    pub pattern: u64,
    pub exact: bool,
}
