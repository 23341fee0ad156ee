use crate::logical_lines::{LogicalLine, Region, above, slice};
use crate::marks::{Mark, Marks};
use wc_built_in::Keyword;
use wc_diag_stops::is_shape;
use wc_lexer::{Shape, Token};
use wc_model::Condition;

/// Whether the current result at a line of the text may depend on what was taken out above. A call asks for none.
fn is_result_unsure(lines: &[LogicalLine<'_, '_>], broken: &Marks, number: u32) -> bool {
    let (mut passed, mut is_broken, mut is_unsure, mut was_left) = (0_u32, false, false, false);
    for line in lines {
        let is_body = line.region == Region::Body;
        let last = line.last.min(number.saturating_sub(1));
        let is_here = is_body && broken.any(passed.saturating_add(1), last, Mark::Taken);
        let word = line.operator();
        is_broken = is_body && is_broken || is_here;
        // a label may be missing below a jump or a return
        is_unsure = is_unsure || is_here || is_broken && (line.has_label() || was_left);
        is_unsure = is_unsure && is_body && !matches!(word, Some(Keyword::Load(_)));
        was_left = matches!(
            word,
            Some(Keyword::Jump(Condition::Always) | Keyword::Return(Condition::Always))
        );
        passed = line.last;
        if passed >= number {
            return is_unsure && !matches!(word, Some(Keyword::Call(Condition::Always)));
        }
    }
    false
}

/// The last line of the unit that a line of the text is in.
fn end_of_unit(lines: &[LogicalLine<'_, '_>], number: u32) -> u32 {
    let mut below = lines.iter().filter(|line| line.first > number);
    let head = below.find(|line| line.region == Region::Head);
    head.map_or(u32::MAX, |line| line.first)
}

/// Whether a line of the text begins with an input or an output of a call, of which something was taken out right above, but for empty
/// lines.
fn goes_on(tokens: &[Token<'_>], broken: &Marks, number: u32) -> bool {
    let index = above(tokens, number);
    let second = tokens.get(index.saturating_add(1));
    let prefix = slice(tokens, 0, index);
    let nearest = prefix
        .iter()
        .rev()
        .find(|token| token.shape != Shape::LineEnd);
    let first = nearest.map_or(0, |token| token.line);
    (is_shape(second, Shape::Arrow) || is_shape(second, Shape::Assign))
        && broken.any(first, number.saturating_sub(1), Mark::Aside)
}

/// Whether a refusal may only follow from what was taken out: a result, a name, a label, a call or a parenthesis that was there.
pub(crate) fn may_follow(
    tokens: &[Token<'_>],
    lines: &[LogicalLine<'_, '_>],
    broken: &Marks,
    number: u16,
    line: u32,
) -> bool {
    let has = |mark| broken.has(0, u32::MAX, mark);
    // a malformed slice whose line stays may have been VAR
    let is_unnamed = has(Mark::Unnamed) || has(Mark::Uncut);
    let mut changed = lines
        .iter()
        .filter(|line| broken.any(line.first, line.last, Mark::Aside));
    match number {
        201 => broken.any(line, line, Mark::Aside) || goes_on(tokens, broken, line),
        206 => broken.any(0, u32::MAX, Mark::Aside),
        // a block whose name is not sure
        302 => changed.any(|it| it.region == Region::Head),
        204 | 205 | 207 => changed.any(|it| it.first <= line && line <= it.last),
        401 => is_unnamed,
        402 | 403 => has(Mark::Unpaired) || is_result_unsure(lines, broken, line),
        // a section that became VAR, or may have, has neither inputs nor outputs
        404 | 405 => {
            let mut edges = lines.iter().filter(|line| line.region == Region::Edge);
            has(Mark::Section) || edges.any(|it| broken.any(it.first, it.last, Mark::Uncut))
        }
        406 => broken.any(line, end_of_unit(lines, line), Mark::Unlabelled),
        409 => is_unnamed || has(Mark::Section),
        _ => false,
    }
}
