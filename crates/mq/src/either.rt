//! A sum of two types, by which `with_two` puts workers of different types into one list.

ghost use Rattle.std.specs.Prelude.{◌≡◌, ◌∷◌, [], length, IfOk};
ghost use Rattle.mq.specs.Either.{AreTwo};
ghost use Rattle.mq.specs.declared.either.Either.TheVariants.{One, Other};

use std::alloc::{AllocError, Global};

/// A value of one of two types.
#[derive(Drop)]
pub(crate) enum Either<A, B> {
    One(A),
    Other(B),
}

/// A list of one value of each type.
pub(crate) fn both<A: Drop, B: Drop>(
    alloc: Global,
    one: A,
    other: B,
) -> Result<Vec<Either<A, B>>, AllocError>
    ensures { IfOk result (λ both. both.items ≡ One one ∷ Other other ∷ []) }
{
    let mut both = Vec::with_capacity(alloc, 2)?;
    both.push_reserved(Either::One(one));
    both.push_reserved(Either::Other(other));
    Ok(both)
}

/// The two values of a list that `both` made.
pub(crate) fn apart<A: Drop, B: Drop>(mut both: Vec<Either<A, B>>) -> (A, B)
    requires len { length both.items ≡ 2 }
    requires two { AreTwo both.items }
    ensures { both.items ≡ One result.0 ∷ Other result.1 ∷ [] }
{
    let Some(second) = both.pop() else {
        unreachable!()
    };
    let Some(first) = both.pop() else {
        unreachable!()
    };
    let Either::Other(other) = second else {
        unreachable!()
    };
    let Either::One(one) = first else {
        unreachable!()
    };
    (one, other)
}
