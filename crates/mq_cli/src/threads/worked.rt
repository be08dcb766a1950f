//! Examples of threads scripts, by their lines: each is proved of the definitions alone.

ghost use Rattle.std.specs.Prelude.{◌≡◌, ◌∷◌, [], codes, pos, replicate, true, false, None, Some};
ghost use Rattle.std.specs.Prelude.{Ok, Err};
ghost use Rattle.mq_cli.specs.ThreadsScript.{nothing, wanted_from};
ghost use Rattle.mq_cli.specs.declared.fault.Cause.TheVariants.{Number, Words};
ghost use Rattle.mq_cli.specs.declared.threads.step.Step.TheVariants.{Put, Remove, Take};
ghost use Rattle.mq_cli.specs.declared.threads.script.MainCall.TheVariants.{Get};

/// The main part and two sections; the moment of each call is the number of its line.
pub fn parts_of_a_threads_script()
    ensures { wanted_from 1 nothing (codes "get 9 c" ∷ codes "worker" ∷ codes "put 0 1 100 1000"
        ∷ [] ∷ codes "rm 0" ∷ codes "worker" ∷ codes "take 0 1 100" ∷ [])
        ≡ Ok (record {
          calls = Get (pos 9) (record { create = true; exclusive = false }) 1 ∷ [];
          sections = (Put 0 (pos 1) 100 1000 None 3 ∷ Remove 0 5 ∷ [])
              ∷ (Take 0 (pos 1) 100 None 7 ∷ []) ∷ [];
        }) }
{}

/// A line of another part is refused for its words, and so is a sixteenth section.
pub fn lines_of_another_part()
    ensures put { wanted_from 1 nothing (codes "put 0 1 1 1" ∷ []) ≡ Err (1, Words) }
    ensures get { wanted_from 1 nothing (codes "worker" ∷ codes "get 0 c" ∷ []) ≡ Err (2, Words) }
    ensures worker { wanted_from 1 nothing (replicate 16 (codes "worker")) ≡ Err (16, Words) }
    ensures most { wanted_from 1 nothing (replicate 15 (codes "worker"))
        ≡ Ok (record { calls = []; sections = replicate 15 [] }) }
{}

/// Words are checked before numbers, and a count is at most 100,000.
pub fn causes_in_a_section()
    ensures words { wanted_from 1 nothing (codes "worker" ∷ codes "rm x 0" ∷ []) ≡ Err (2, Words) }
    ensures number { wanted_from 1 nothing (codes "worker" ∷ codes "rm 00" ∷ []) ≡ Err (2, Number) }
    ensures count { wanted_from 1 nothing (codes "worker" ∷ codes "take 0 1 100001" ∷ [])
        ≡ Err (2, Number) }
    ensures all { wanted_from 1 nothing (codes "worker" ∷ codes "take 0 1 100000" ∷ [])
        ≡ Ok (record { calls = []; sections = (Take 0 (pos 1) 100000 None 2 ∷ []) ∷ [] }) }
{}

/// Behind the numbers of a put and of a take may stand within how many milliseconds its waits end,
/// at most 1,000,000, and in no other place.
pub fn steps_with_an_end()
    ensures both { wanted_from 1 nothing (codes "worker" ∷ codes "put 0 1 2 3 within 0"
        ∷ codes "take 0 1 5 within 1000000" ∷ [])
        ≡ Ok (record {
          calls = [];
          sections = (Put 0 (pos 1) 2 3 (Some 0) 2 ∷ Take 0 (pos 1) 5 (Some 1000000) 3 ∷ []) ∷ [];
        }) }
    ensures place { wanted_from 1 nothing (codes "worker" ∷ codes "take 0 1 within 5 5" ∷ [])
        ≡ Err (2, Words) }
    ensures missing { wanted_from 1 nothing (codes "worker" ∷ codes "put 0 1 2 3 within" ∷ [])
        ≡ Err (2, Words) }
    ensures most { wanted_from 1 nothing (codes "worker" ∷ codes "take 0 1 5 within 1000001" ∷ [])
        ≡ Err (2, Number) }
    ensures removal { wanted_from 1 nothing (codes "worker" ∷ codes "rm 0 within 5" ∷ [])
        ≡ Err (2, Words) }
{}
