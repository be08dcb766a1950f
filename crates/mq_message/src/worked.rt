//! Examples of what receives return: each is proved of the definitions alone.

ghost use Rattle.std.specs.Prelude.{◌≡◌, ◌-◌, ◌^◌, ◌∷◌, [], pos, negsuc, true, false, codes, map};
ghost use Rattle.mq_message.specs.declared.selection.Selection.TheVariants.{Any, Exact};
ghost use Rattle.mq_message.specs.declared.selection.Selection.TheVariants.{Except, UpTo};
ghost use Rattle.mq_message.specs.Selection.{selection_of};
ghost use Rattle.mq_message.specs.Shown.{selection_text};
ghost use Rattle.mq_message.specs.Worked.{places_handed_out, two_of_type_1, two_of_type_7};
ghost use Rattle.mq_message.specs.Worked.{greatest_then_8, msgtyps};

/// The places of the messages that such receives return, one after another.
pub fn worked_receives()
    // With types up to 2, both messages of type 1 come first, in their order.
    ensures lowest_type_first { places_handed_out two_of_type_1
        (UpTo 2 ∷ UpTo 2 ∷ UpTo 2 ∷ UpTo 2 ∷ [])
        ≡ Some 2 ∷ Some 4 ∷ Some 3 ∷ None ∷ [] }

    // With a type excepted, the other messages come in their order, and what is of that type stays.
    ensures other_types_first { places_handed_out two_of_type_7
        (Except (pos 7) ∷ Except (pos 7) ∷ Except (pos 7) ∷ Any ∷ UpTo 7 ∷ [])
        ≡ Some 2 ∷ Some 4 ∷ None ∷ Some 1 ∷ Some 3 ∷ [] }

    // With one type selected, the first message of that type is received.
    ensures one_type_alone { places_handed_out two_of_type_7
        (Exact (pos 6) ∷ Exact (pos 7) ∷ Exact (pos 7) ∷ Exact (pos 5) ∷ [])
        ≡ None ∷ Some 1 ∷ Some 3 ∷ Some 2 ∷ [] }

    // The widest bound reaches each type.
    ensures widest_bound { places_handed_out greatest_then_8
        (UpTo (2 ^ 63) ∷ UpTo (2 ^ 63 - 2) ∷ UpTo (2 ^ 63) ∷ [])
        ≡ Some 2 ∷ None ∷ Some 1 ∷ [] }
    ensures greatest_type { places_handed_out greatest_then_8
        (UpTo (2 ^ 63) ∷ UpTo (2 ^ 63 - 1) ∷ []) ≡ Some 2 ∷ Some 1 ∷ [] }

    // What each kind of `msgtyp` selects, without MSG_EXCEPT and with it.
    ensures plain { map (λ t. selection_of t false) msgtyps
        ≡ Any ∷ Exact (pos 7) ∷ UpTo 7 ∷ UpTo (2 ^ 63) ∷ [] }
    ensures excepted { map (λ t. selection_of t true) msgtyps
        ≡ Any ∷ Except (pos 7) ∷ UpTo 7 ∷ UpTo (2 ^ 63) ∷ [] }
{}

/// How each kind of selection is printed.
pub fn worked_texts()
    ensures { map selection_text (Any ∷ Exact (pos 5) ∷ Except (pos 70) ∷ UpTo 5 ∷ [])
        ≡ codes "any" ∷ codes "type 5" ∷ codes "not type 70" ∷ codes "up to 5" ∷ [] }
{}
