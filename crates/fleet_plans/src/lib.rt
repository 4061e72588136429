//! Plans of other planners: reads the texts that tools of the field write, and judges the plans step by step.
#![tactic(auto)]

mod agents;
mod answer;
mod asked;
mod cells;
mod claims;
mod costs;
mod fault;
mod follow;
mod form;
mod goals;
mod head;
mod invalid;
mod judge;
mod judging;
mod law;
mod limit;
mod misspelt;
mod movers;
mod placements;
mod places;
mod plan;
mod report;
mod runners;
mod scenario;
mod schedule;
mod seats;
mod sides;
mod study;
mod table;
mod text;
mod tracks;
mod walk;

pub use answer::{PlanAnswer, check_solution, check_texts};
pub use asked::{check_form, check_scenario};
pub use claims::{HeadFault, HeadKey};
pub use fault::PlanTextFault;
pub use form::{TextForm, form_of, is_plan};
pub use goals::GoalFault;
pub use judge::PlanJudge;
pub use judging::{FaultText, PlanFault};
pub use law::{
    a_schedule_is_by_its_lines, a_table_is_by_its_lines, a_text_is_by_its_lines,
    letters_lead_to_the_next_cell, robots_stay_apart,
};
pub use limit::MOST_PLAN_BYTES;
pub use misspelt::{KnownKey, Misspelt, first_misspelt};
pub use placements::Placements;
pub use report::PlanReport;
pub use runners::{RunnersFault, RunnersKey};
pub use scenario::{Scenario, scenario_on};
pub use study::{Study, study_form, study_texts};
