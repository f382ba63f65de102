// Where reading continues.
#[derive(Clone, Copy, Debug, PartialEq, Eq, Drop)]
pub struct Cursor {
    pub at: usize,
}
