//! Questions that are asked of a desk before its disk fails, and again after that.

use desk_run::Records;
use std::alloc::{AllocError, Global};
use test_doubles::answer_to;

/// What is asked.
const QUESTIONS: [&str; 5] = [
    "@show 1",
    "@show 2",
    "@show 3",
    "@list foo 1",
    "@list bar 1",
];

/// How a fault of the device is answered.
const DEVICE: &str = "Store fault: device.\n";

/// What the questions were answered.
pub(crate) type QuestionAnswers = Vec<Vec<u8>>;

/// Asks all questions, and keeps the answers.
pub(crate) fn ask_all<S: Records>(
    alloc: Global,
    store: &mut S,
    answers: &mut QuestionAnswers,
) -> Result<(), AllocError> {
    answers.clear();
    for question in QUESTIONS {
        answers.push(answer_to(alloc, store, question))?;
    }
    Ok(())
}

// Whether an answer is as it was, or a fault of the device; by how many faults are counted more.
fn is_well(answer: &[u8], before: &[u8], more: u64) -> bool {
    if answer == DEVICE.as_bytes() {
        more == 1
    } else {
        more == 0 && answer == before
    }
}

// Whether a question is answered as it was, or by a fault of the device that is counted.
fn is_answered_well<S: Records>(
    alloc: Global,
    store: &mut S,
    question: &str,
    before: &[u8],
) -> bool {
    let faults = store.faults();
    let answer = answer_to(alloc, store, question);
    let more = store.faults().saturating_sub(faults);
    is_well(&answer, before, more)
}

/// Whether all questions are answered so.
pub(crate) fn are_answered_well<S: Records>(
    alloc: Global,
    store: &mut S,
    answers: &[Vec<u8>],
) -> bool {
    let mut all = answers.len() == QUESTIONS.len();
    for (question, before) in QUESTIONS.iter().zip(answers) {
        all = is_answered_well(alloc, store, question, before.as_slice()) && all;
    }
    all
}
