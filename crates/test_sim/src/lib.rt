//! Small experiments, next to a model in Python (`tools/sim/experiments.py`).
#![tactic(auto)]

#[cfg(test)]
mod experiments;
