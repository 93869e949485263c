use crate::{
    Alias, Cast, CastTarget, Expr, SortOrder, UnresolvedAttribute, UnresolvedFunction,
    UnresolvedStar,
};
use cn_base::{Boxed, Copied, List, OutOfMemory};
use std::alloc::Global;

impl Copied for UnresolvedAttribute {
    fn copy(&self, alloc: Global) -> Result<UnresolvedAttribute, OutOfMemory> {
        Ok(UnresolvedAttribute {
            unparsed_identifier: self.unparsed_identifier.copy(alloc)?,
            plan_id: self.plan_id.copy(alloc)?,
        })
    }
}

impl Copied for UnresolvedStar {
    fn copy(&self, alloc: Global) -> Result<UnresolvedStar, OutOfMemory> {
        Ok(UnresolvedStar {
            unparsed_target: self.unparsed_target.copy(alloc)?,
        })
    }
}

impl Copied for CastTarget {
    fn copy(&self, alloc: Global) -> Result<CastTarget, OutOfMemory> {
        match self {
            CastTarget::Kind(kind) => Ok(CastTarget::Kind(kind.copy(alloc)?)),
            CastTarget::KindText(text) => Ok(CastTarget::KindText(text.copy(alloc)?)),
            CastTarget::Absent => Ok(CastTarget::Absent),
        }
    }
}

impl<E: Copied + Drop> Copied for UnresolvedFunction<E> {
    fn copy(&self, alloc: Global) -> Result<UnresolvedFunction<E>, OutOfMemory> {
        Ok(UnresolvedFunction {
            function_name: self.function_name.copy(alloc)?,
            arguments: self.arguments.copy(alloc)?,
            is_distinct: self.is_distinct,
        })
    }
}

impl<E: Copied + Drop> Copied for Alias<E> {
    fn copy(&self, alloc: Global) -> Result<Alias<E>, OutOfMemory> {
        Ok(Alias {
            expr: self.expr.copy(alloc)?,
            name: self.name.copy(alloc)?,
        })
    }
}

impl<E: Copied + Drop> Copied for Cast<E> {
    fn copy(&self, alloc: Global) -> Result<Cast<E>, OutOfMemory> {
        Ok(Cast {
            expr: self.expr.copy(alloc)?,
            target: self.target.copy(alloc)?,
        })
    }
}

impl<E: Copied + Drop> Copied for SortOrder<E> {
    fn copy(&self, alloc: Global) -> Result<SortOrder<E>, OutOfMemory> {
        Ok(SortOrder {
            child: self.child.copy(alloc)?,
            direction: self.direction,
            null_ordering: self.null_ordering,
        })
    }
}

impl Copied for Expr {
    fn copy(&self, alloc: Global) -> Result<Expr, OutOfMemory> {
        match self {
            Expr::Literal(literal) => Ok(Expr::Literal(literal.copy(alloc)?)),
            Expr::UnresolvedAttribute(attribute) => {
                Ok(Expr::UnresolvedAttribute(attribute.copy(alloc)?))
            }
            Expr::UnresolvedFunction(function) => {
                let mut arguments = List::new(alloc);
                for argument in function.arguments.as_slice() {
                    arguments.push(argument.copy(alloc)?)?;
                }
                Ok(Expr::UnresolvedFunction(UnresolvedFunction {
                    function_name: function.function_name.copy(alloc)?,
                    arguments,
                    is_distinct: function.is_distinct,
                }))
            }
            Expr::UnresolvedStar(star) => Ok(Expr::UnresolvedStar(star.copy(alloc)?)),
            Expr::Alias(alias) => Ok(Expr::Alias(Alias {
                expr: Boxed::new(alloc, alias.expr.get().copy(alloc)?)?,
                name: alias.name.copy(alloc)?,
            })),
            Expr::Cast(cast) => Ok(Expr::Cast(Cast {
                expr: Boxed::new(alloc, cast.expr.get().copy(alloc)?)?,
                target: cast.target.copy(alloc)?,
            })),
            Expr::SortOrder(order) => Ok(Expr::SortOrder(SortOrder {
                child: Boxed::new(alloc, order.child.get().copy(alloc)?)?,
                direction: order.direction,
                null_ordering: order.null_ordering,
            })),
            Expr::Other(number) => Ok(Expr::Other(*number)),
        }
    }
}
