//! Statistics by their names.

use vx_case_lines::{Answer, cut};
use vx_case_objects::stat_of;

/// Of the words `stat` and `stats`.
pub(crate) fn tell(answer: &mut Answer, word: &str, given: &str) {
    if let Err(error) = tell_asked(answer, word, given) {
        answer.push(error);
    }
}

fn tell_asked(answer: &mut Answer, word: &str, given: &str) -> anyhow::Result<()> {
    let (one, other) = cut(given);
    let stat = stat_of(one)?;
    if word == "stats" {
        let less = stat < stat_of(other)?;
        write!(answer, "less {less}");
        return Ok(());
    }
    write!(answer, "{}, number {}", stat.name(), stat.number());
    match stat.aggregate_fn() {
        Some(aggregate) => write!(answer, ", aggregate {aggregate}"),
        None => answer.push_str(", no aggregate"),
    }
    Ok(())
}
