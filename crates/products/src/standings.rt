// How a cell stands against a product list, with the code that C is given.
#[derive(Clone, Copy, Debug, PartialEq, Eq)]
pub enum Standing {
    UpToDate = 0,
    Behind = 1,
    Cancelled = 2,
    NotListed = 3,
}
