use filter::Filter;

// kept: that the table is sound stands in the clauses of each call, and not in a ghost field: a ghost field has to be a proposition, and nothing says so of
// what a table says of itself. To ask it of every table would ask more of whoever writes one.

// kept: `find` and `open` are no methods: they ask for shared references where a lent book holds exclusive ones.

/// A book that is lent: a filter, a table and a fingerprint. The filter need not belong to the table.
#[derive(Drop)]
pub struct Book<'a, 'b, 'c, 'd, X, P> {
    pub filter: &'a mut Filter<'b>,
    pub table: &'c mut X,
    pub by: &'d P,
}
