//! The forms of plans' texts.

ghost use Rattle.std.specs.Prelude.{◌≡◌};
ghost use Rattle.fleet_map.specs.Text.{lines_of};
ghost use Rattle.fleet_plans.specs.Form.{is_bare, is_agent, is_header, is_table, is_schedule, form_of, begins_with, has_word, is_pair, has_head, is_plan};

use crate::head::split_once;
use crate::runners::is_json;
use fleet_map::text::first_line;

/// The form of a plan's text.
#[derive(Clone, Copy, Debug, PartialEq, Eq)]
pub enum TextForm {
    /// A head of lines KEY=VALUE, the line `solution=`, and lines of cells or of moves.
    Headed,
    /// Lines of cells without a head.
    Bare,
    /// A line `Agent K:` for each robot, with its cells.
    Agents,
    /// JSON, as the League of Robot Runners has plans, with the paths that the robots went.
    Json,
    /// The same, with the paths that the planner asked for. No text is found to have this form: a caller names it.
    PlannerJson,
    /// A table with a line for each cell of each robot's path.
    Table,
    /// YAML, as libMultiRobotPlanning has plans.
    Schedule,
}

/// Whether a text begins with a digit: with a line of cells, and no head before it.
fn is_bare(text: &[u8]) -> bool
    ensures { result ≡ is_bare text.now }
{
    !text.is_empty() && text[0].is_ascii_digit()
}

/// Whether a text, or a line, is one of an agent.
pub(crate) fn is_agent(text: &[u8]) -> bool
    ensures { result ≡ is_agent text.now }
{
    text.len() >= 6 && &text[..6] == b"Agent ".as_slice()
}

/// Whether a line is the first one of a table.
pub(crate) fn is_header(line: &[u8]) -> bool
    ensures { result ≡ is_header line.now }
{
    line == b"agent,time,row,column".as_slice()
}

/// Whether a text begins with the first line of a table.
fn is_table(text: &[u8]) -> bool
    ensures { result ≡ is_table (lines_of text.now) }
{
    match first_line(text) {
        Some((line, _)) => is_header(line),
        None => false,
    }
}

/// Whether a text begins as YAML with a schedule does.
fn is_schedule(text: &[u8]) -> bool
    ensures { result ≡ is_schedule text.now }
{
    begins_with(text, b"statistics:") || begins_with(text, b"schedule:")
}

/// The form of a text, by its first bytes.
pub fn form_of(text: &[u8]) -> TextForm
    ensures { result ≡ form_of text.now }
{
    if is_json(text) {
        TextForm::Json
    } else if is_bare(text) {
        TextForm::Bare
    } else if is_agent(text) {
        TextForm::Agents
    } else if is_table(text) {
        TextForm::Table
    } else if is_schedule(text) {
        TextForm::Schedule
    } else {
        TextForm::Headed
    }
}

/// Whether a text begins with this word.
fn begins_with(text: &[u8], word: &[u8]) -> bool
    ensures { result ≡ begins_with word.now text.now }
{
    text.len() >= word.len() && &text[..word.len()] == word
}

/// Whether this word stands somewhere in a text.
#[tactic(auto, unfolding(crate::specs::Form::has_word))]
fn has_word(text: &[u8], word: &[u8]) -> bool
    ensures { result ≡ has_word word.now text.now }
{
    let mut rest = text;
    while let Some((_first, after)) = rest.split_first() {
        if begins_with(rest, word) {
            return true;
        }
        rest = after;
    }
    false
}

/// Whether a line is KEY=VALUE, and no comment.
fn is_pair(line: &[u8]) -> bool
    ensures { result ≡ is_pair line.now }
{
    match split_once(line, b'=') {
        Some(_) => line[0] != b'#',
        None => false,
    }
}

/// Whether a text's first line is KEY=VALUE, and no comment.
fn has_head(text: &[u8]) -> bool
    ensures { result ≡ has_head (lines_of text.now) }
{
    match first_line(text) {
        Some((line, _)) => is_pair(line),
        None => false,
    }
}

/// Whether a text is taken for a plan, where it may be a script or a trace as well: a text in JSON if the word
/// `"actualPaths"` stands in it, any other if its first line is one of a plan.
pub fn is_plan(text: &[u8]) -> bool
    ensures { result ≡ is_plan text.now }
{
    match form_of(text) {
        TextForm::Json => has_word(text, b"\"actualPaths\""),
        TextForm::PlannerJson => false,
        TextForm::Bare => true,
        TextForm::Agents => true,
        TextForm::Table => true,
        TextForm::Schedule => true,
        TextForm::Headed => has_head(text),
    }
}
