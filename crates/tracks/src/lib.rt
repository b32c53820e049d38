// Tables of the present plan, by which a trial is measured without walking all of a vehicle.
#![tactic(auto)]

pub mod before;
pub mod measure;
pub mod plan_tables;
pub mod tables;
