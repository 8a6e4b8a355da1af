// The console's commands over the layout: planning, stacking and the view.
#![tactic(auto)]

pub mod layouts;
