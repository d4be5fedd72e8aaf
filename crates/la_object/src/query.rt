use la_set::Sequence;

/// What an object is asked.
#[derive(Clone, Copy)]
pub enum Query {
    /// A counter's increments less its decrements.
    Total,
    /// Whether a counter's total is at least this number. A total below zero reaches none.
    AtLeast(u64),
    /// The largest value that a max register was raised to; 0 where there is none.
    Largest,
    /// Whether an observed-remove set has this element.
    Has(u64),
    /// How many elements an observed-remove set has.
    Size,
    /// An observed-remove set's elements, in ascending order.
    Items,
}

/// Elements, one after another.
pub type Items = Sequence<u64>;

/// What an object answers.
#[derive(Drop)]
pub enum Answer {
    /// The answer to [`Query::Total`]: the increments less the decrements.
    Total(i64),
    /// The answer to [`Query::AtLeast`]: whether the total is at least that number.
    Reached(bool),
    /// The answer to [`Query::Largest`]: the largest value, or 0 where there is none.
    Largest(u64),
    /// The answer to [`Query::Has`]: whether the element is there.
    Has(bool),
    /// The answer to [`Query::Size`]: how many elements there are.
    Size(u64),
    /// The answer to [`Query::Items`]: the elements, in ascending order.
    Items(Items),
    /// The answer to a query that is not one of the object's kind.
    Foreign,
}
