//! Theorems about allocating and freeing: each law is a contract of an empty function.

ghost use Rattle.mq_tree.specs.Laws.{FitIsLeast, LargestFits, LentSetIsApart, StaysLentSet, FreePagesAddUp};

/// What holds of the definitions that the contracts of an `OrderTree` name, for every height and
/// every list of blocks.
pub fn laws_of_lending()
    // `fit` answers the least start at which a block fits, and that alone.
    ensures fit_is_least { FitIsLeast }

    // The largest order fits, and no order above it.
    ensures largest_fits { LargestFits }

    // No page is in two lent blocks.
    ensures lent_set_is_apart { LentSetIsApart }

    // Allocating a block and freeing it restores the lent set, and either keeps it valid.
    ensures stays_lent_set { StaysLentSet }

    // The allocated pages and the free ones are those of the arena.
    ensures free_pages_add_up { FreePagesAddUp }
{}
