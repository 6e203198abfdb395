// The names of the operations whose answer is an interval, and of the comparisons.
use wholes::Function;

// The operations of one operand. Those whose results are whole numbers have names of their own.
#[derive(Clone, Copy)]
pub enum Unary {
    Neg,
    Abs,
    Whole(Function),
}

// The operations of two operands.
#[derive(Clone, Copy)]
pub enum Binary {
    Add,
    Sub,
    Mul,
    Div,
    ConvexHull,
    Intersection,
    Max,
    Min,
}

// Those of them that round.
#[derive(Clone, Copy)]
pub enum Arithmetic {
    Add,
    Sub,
    Mul,
    Div,
}

// The comparisons of two operands, whose answer is yes or no.
#[derive(Clone, Copy)]
pub enum Comparison {
    Equal,
    Subset,
    Interior,
    Disjoint,
    Less,
    StrictLess,
    Precedes,
    StrictPrecedes,
}
