//! Laws of the layout: calls and answers are read back from their bytes.
ghost use Rattle.std.specs.Prelude.{◌≡◌};
ghost use Rattle.mq_face.specs.Answers.{done_numbers, figure_numbers, refusal_numbers};
ghost use Rattle.mq_face.specs.Answers.{usage_numbers};
ghost use Rattle.mq_face.specs.Bytes.{bytes_of_numbers, numbers_in};
ghost use Rattle.mq_face.specs.Layout.{call_of, numbers_of};

use crate::{Call, Done, Refusal};
use mq_calls::Usage;
use mq_queue::Figures;

/// Each call is read back from its numbers, and these from their bytes.
#[tactic(auto, using(crate::proofs::BytesLemmas::eight_read))]
pub fn a_call_is_read_back(call: Call)
    ensures call { call_of (numbers_of call) ≡ call }
    ensures numbers { numbers_in (bytes_of_numbers (numbers_of call)) ≡ numbers_of call }
{
    let _ = call;
}

/// The numbers of an answer are read back from their bytes.
#[tactic(auto, using(crate::proofs::BytesLemmas::eight_read))]
pub fn an_answer_is_read_back(done: Done, refusal: Refusal)
    ensures done { numbers_in (bytes_of_numbers (done_numbers done)) ≡ done_numbers done }
    ensures refusal { numbers_in (bytes_of_numbers (refusal_numbers refusal))
        ≡ refusal_numbers refusal }
{
    let _ = (done, refusal);
}

/// So are those of what is shown.
#[tactic(auto, using(crate::proofs::BytesLemmas::eight_read))]
pub fn what_is_shown_is_read_back(figures: Figures, usage: Usage)
    ensures figures { numbers_in (bytes_of_numbers (figure_numbers figures))
        ≡ figure_numbers figures }
    ensures usage { numbers_in (bytes_of_numbers (usage_numbers usage)) ≡ usage_numbers usage }
{
    let _ = (figures, usage);
}
