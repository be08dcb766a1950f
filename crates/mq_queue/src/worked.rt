//! Examples of what a queue answers: each is proved of the definitions alone.

ghost use Rattle.std.specs.Prelude.{◌≡◌, ◌∷◌, ◌++◌, [], codes, drop, pos, true, false};
ghost use Rattle.mq_message.specs.declared.selection.Selection.TheVariants.{Any, Exact, Except, UpTo};
ghost use Rattle.mq_queue.specs.declared.error.QueueError.TheVariants.{TypeInvalid, TooLong, Full, NoMessage, TooBig, OverLimit};
ghost use Rattle.mq_queue.specs.Answer.{send_refusal, receive_answer, set_refusal};
ghost use Rattle.mq_queue.specs.Base.{base_of, event_from, figures_from, quota_from, waiting_from};
ghost use Rattle.mq_queue.specs.Figures.{figures, no_figures};
ghost use Rattle.mq_queue.specs.Log.{made_key};
ghost use Rattle.mq_queue.specs.Replay.{state_after};
ghost use Rattle.mq_queue.specs.Replies.{replayed};
ghost use Rattle.mq_queue.specs.Room.{quota};
ghost use Rattle.mq_queue.specs.Shown.{event_text, figures_text};
ghost use Rattle.mq_queue.specs.Waiting.{waiting};
ghost use Rattle.mq_queue.specs.Worked.{text, ab_and_cd, hello_and_hi, four_types, a_receipt};
ghost use Rattle.mq_queue.specs.Worked.{quota_of_4, ef_for_ab, four_texts, over_quota, under_quota};
ghost use Rattle.mq_queue.specs.Worked.{shut, hello_received, two_of_type_1_received, a_making};
ghost use Rattle.mq_queue.specs.Worked.{a_removal, a_sending};

/// With a quota of 4, the bytes are at most 4, and so are the messages.
pub(crate) fn room_by_quota()
    ensures first { send_refusal [] 4 (pos 1) 2 ≡ None }
    ensures second { send_refusal (text 1 1 2 ∷ []) 4 (pos 1) 2 ≡ None }
    ensures byte_more { send_refusal ab_and_cd 4 (pos 1) 1 ≡ Some Full }
    ensures third { send_refusal ab_and_cd 4 (pos 1) 0 ≡ None }
    ensures fourth { send_refusal (text 3 1 0 ∷ ab_and_cd) 4 (pos 1) 0 ≡ None }
    ensures fifth { send_refusal (text 3 1 0 ∷ text 4 1 0 ∷ ab_and_cd) 4 (pos 1) 0 ≡ Some Full }
{}

/// The type is checked first, then the length, then the room.
pub(crate) fn first_refusal()
    ensures mtype { send_refusal [] 4 (pos 0) 65537 ≡ Some TypeInvalid }
    ensures length { send_refusal [] 4 (pos 1) 65537 ≡ Some TooLong }
    ensures room { send_refusal [] 4 (pos 1) 65536 ≡ Some Full }
    ensures longest { send_refusal [] 65536 (pos 1) 65536 ≡ None }
{}

/// A text that is too long for the receiver is refused, though a later one would fit, or it is
/// truncated, to nothing too.
pub(crate) fn too_big()
    ensures shorter { receive_answer hello_and_hi 4 Any false ≡ Err TooBig }
    ensures same { receive_answer hello_and_hi 5 Any false ≡ Ok (text 1 5 5) }
    ensures cut { receive_answer hello_and_hi 4 Any true ≡ Ok (text 1 5 5) }
    ensures cut_to_nothing { receive_answer hello_and_hi 0 Any true ≡ Ok (text 1 5 5) }
    ensures other { receive_answer hello_and_hi 2 (Exact (pos 6)) false ≡ Ok (text 2 6 2) }
    ensures none { receive_answer [] 4 Any false ≡ Err NoMessage }
{}

/// With types up to 2 the lowest type is received first, and with type 1 excepted the first other.
pub(crate) fn selected()
    ensures lowest { receive_answer four_types 9 (UpTo 2) false ≡ Ok (text 2 1 1) }
    ensures then { receive_answer (drop 2 four_types) 9 (UpTo 2) false ≡ Ok (text 4 1 1) }
    ensures other { receive_answer (drop 1 four_types) 9 (Except (pos 1)) false ≡ Ok (text 3 2 1) }
    ensures missing { receive_answer four_types 9 (Exact (pos 4)) true ≡ Err NoMessage }
{}

/// "ab" and "cd" are pending under a quota of 4: there is room for two empty texts, and then for
/// none.
pub(crate) fn full_by_bytes_and_by_count()
    ensures waits { waiting quota_of_4 ≡ ab_and_cd }
    ensures quota { quota quota_of_4 ≡ 4 }
    ensures made { quota (a_making 1 ∷ []) ≡ 131072 }
    ensures bytes { send_refusal (waiting quota_of_4) (quota quota_of_4) (pos 1) 2 ≡ Some Full }
    ensures empty { send_refusal (waiting quota_of_4) (quota quota_of_4) (pos 1) 0 ≡ None }
    ensures count { send_refusal (waiting four_texts) (quota four_texts) (pos 1) 0 ≡ Some Full }
{}

/// A queue may hold more than a quota that was lowered. It is full then, also for an empty text,
/// until the messages that are too many are received.
pub(crate) fn over_and_under()
    ensures over { send_refusal (waiting over_quota) (quota over_quota) (pos 1) 0 ≡ Some Full }
    ensures received { receive_answer (waiting over_quota) 9 Any false ≡ Ok (text 1 1 6) }
    ensures under { send_refusal (waiting under_quota) (quota under_quota) (pos 1) 0 ≡ None }
    ensures above { set_refusal 131073 ≡ Some OverLimit }
    ensures greatest { set_refusal 131072 ≡ None }
    ensures least { set_refusal 0 ≡ None }
    ensures none { send_refusal (waiting shut) (quota shut) (pos 1) 0 ≡ Some Full }
{}

/// The figures after a sending, a new quota and a receipt, and after the removal.
pub(crate) fn figures_shown()
    ensures live { figures hello_received ≡ record {
      qnum = 0;
      cbytes = 0;
      qbytes = 100;
      stime = 2;
      rtime = 4;
      ctime = 3;
      lspid = 1;
      lrpid = 2;
    } }
    ensures waiting { figures quota_of_4 ≡ record {
      qnum = 2;
      cbytes = 4;
      qbytes = 4;
      stime = 3;
      rtime = 0;
      ctime = 4;
      lspid = 1;
      lrpid = 0;
    } }
    ensures removed { figures (hello_received ++ a_removal 5 ∷ []) ≡ no_figures }
    ensures key { made_key hello_received ≡ pos 7 }
{}

/// A log that is replayed: what is left, and what the last two receivers got.
pub(crate) fn played_again()
    ensures waits { (state_after two_of_type_1_received).headers ≡ text 1 3 1 ∷ text 3 2 1 ∷ [] }
    ensures answers { drop 5 (replayed two_of_type_1_received)
        ≡ Ok (Some (text 2 1 1)) ∷ Ok (Some (text 4 1 1)) ∷ [] }
{}

/// The log of "ab", "cd" and the quota of 4 is drained, and then "ef" is sent for "ab".
pub(crate) fn cut_and_gone_on()
    ensures places { (base_of quota_of_4).places ≡ 4 }
    ensures figures { (base_of quota_of_4).figures ≡ figures quota_of_4 }
    ensures waiting { (base_of quota_of_4).waiting ≡ ab_and_cd }
    ensures waits { waiting_from (base_of quota_of_4) ef_for_ab ≡ text 2 1 2 ∷ text 5 1 2 ∷ [] }
    ensures quota { quota_from (base_of quota_of_4) ef_for_ab ≡ 4 }
    ensures shown { figures_from (base_of quota_of_4) ef_for_ab ≡ record {
      qnum = 2;
      cbytes = 4;
      qbytes = 4;
      stime = 6;
      rtime = 5;
      ctime = 4;
      lspid = 1;
      lrpid = 2;
    } }
    ensures removed { figures_from (base_of quota_of_4) (a_removal 5 ∷ []) ≡ no_figures }
    ensures cut_off { event_from 4 ef_for_ab 3 ≡ None }
    ensures entry { event_from 4 ef_for_ab 4 ≡ Some (a_receipt 5 1) }
    ensures end { event_from 4 ef_for_ab 6 ≡ None }
{}

/// Events and figures, as they are printed.
pub(crate) fn printed()
    ensures made { event_text (a_making 76) ≡ codes "made seat=1 moment=76 key=7" }
    ensures sent { event_text (a_sending 77 5 3)
        ≡ codes "sent seat=1 moment=77 type=5 length=3 tag=0" }
    ensures received { event_text (a_receipt 78 1)
        ≡ codes "received seat=2 moment=78 place=1 size=9 noerror=false selection=any" }
    ensures figures { figures_text (figures quota_of_4)
        ≡ codes "qnum=2 cbytes=4 qbytes=4 lspid=1 lrpid=0 stime=3 rtime=0 ctime=4" }
{}
