//! Laws of the definitions that the contracts cite.

ghost use Rattle.regular_expr.specs.Spans.{IsFoundWhereItSpans};

/// A pattern stands in a text just where it spans a part of it.
pub fn found_where_it_spans()
    ensures { IsFoundWhereItSpans }
{}
