//! Laws over the definitions of types and expressions, each the contract of a function that does nothing.

ghost use Rattle.expression_messages.specs.Laws.{TypesAreReadBack, ExprsAreReadBack, AliasesAreReadBack, SortOrdersAreReadBack, LevelsAgree, ExprsAreValid, ExprTextsAreKept};

/// What a type is spelled as is a sound message wherever its depth is allowed, and is read as the type.
pub fn types_are_read_back()
    ensures { TypesAreReadBack }
{}

/// What an expression is spelled as is a sound message wherever its depth is allowed, and is read as the expression.
pub fn exprs_are_read_back()
    ensures { ExprsAreReadBack }
{}

/// What an alias is spelled as is a sound message wherever its depth is allowed, and is read as the alias.
pub fn aliases_are_read_back()
    ensures { AliasesAreReadBack }
{}

/// What a sort order is spelled as is a sound message wherever its depth is allowed, and is read as the sort order.
pub fn sort_orders_are_read_back()
    ensures { SortOrdersAreReadBack }
{}

/// What is read of a sound message is the same at every level that suffices.
pub fn levels_agree()
    ensures { LevelsAgree }
{}

/// What is read of any fields has the bits of its types and UTF-8 texts, so that it can be written again.
pub fn exprs_are_valid()
    ensures { ExprsAreValid }
{}

/// Every text of a sound message is read as it stands.
pub fn expr_texts_are_kept()
    ensures { ExprTextsAreKept }
{}
