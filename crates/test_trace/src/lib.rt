//! Tests of traces and plans. Traces are written, read back and judged; truncated and hostile ones too, and the second
//! judge finds planted faults. Plans of other planners are judged, traces are turned into plans, faults are explained,
//! and figures are counted.
#![tactic(auto)]

#[cfg(test)]
mod conversions;
#[cfg(test)]
mod explanations;
#[cfg(test)]
mod figures;
#[cfg(test)]
mod judged;
#[cfg(test)]
mod plan_judge;
#[cfg(test)]
mod plan_texts;
#[cfg(test)]
mod plan_words;
#[cfg(test)]
mod planted;
#[cfg(test)]
mod reopened;
#[cfg(test)]
mod roomy;
#[cfg(test)]
mod schedules;
#[cfg(test)]
mod texts;
#[cfg(test)]
mod trace_explanations;
#[cfg(test)]
mod turning;
