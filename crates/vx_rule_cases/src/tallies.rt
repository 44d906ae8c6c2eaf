//! Counts with their sum.

use std::alloc::Global;
use vx_case_lines::{Answer, number};
use vx_tally::Tally;

/// A line for each call that asks.
pub(crate) fn tell(alloc: Global, answer: &mut Answer, name: &str, calls: &str) {
    let mut tally = Tally::new(alloc);
    for call in calls.split_whitespace() {
        tell_call(alloc, answer, name, &mut tally, call);
    }
    drop(tally);
}

fn tell_call(alloc: Global, answer: &mut Answer, name: &str, tally: &mut Tally, call: &str) {
    let (word, numbers) = call.split_once(':').unwrap_or((call, ""));
    match word {
        "push" => {
            if tally.push(alloc, number(numbers)).is_err() {
                answer.push_str("out of memory\n");
            }
        }
        "set" => set(answer, tally, numbers),
        _ => {
            write!(answer, "{name} {call}: ");
            tell_asked(answer, tally, word, numbers);
            answer.push_str("\n");
        }
    }
}

fn set(answer: &mut Answer, tally: &mut Tally, numbers: &str) {
    let (place, count) = numbers.split_once(':').unwrap_or((numbers, ""));
    let place = place_of(place);
    if place < tally.len() {
        tally.set(place, number(count));
    } else {
        write!(answer, "no count at {place}\n");
    }
}

fn place_of(text: &str) -> usize {
    text.parse::<usize>().unwrap_or(0)
}

fn tell_asked(answer: &mut Answer, tally: &Tally, word: &str, numbers: &str) {
    match word {
        "get" => {
            let place = place_of(numbers);
            if place < tally.len() {
                answer.push(tally.get(place));
            } else {
                write!(answer, "no count at {place}");
            }
        }
        "find" => {
            let k = number(numbers);
            if k < tally.sum() {
                let (place, behind) = tally.find(k);
                write!(answer, "count {place}, {behind} behind its beginning");
            } else {
                write!(answer, "{k} falls in no count");
            }
        }
        "sum" => answer.push(tally.sum()),
        "len" => write!(answer, "{}, none {}", tally.len(), tally.is_empty()),
        _ => write!(answer, "no call {word}"),
    }
}
