//! What the report of a plant says of its edge nodes and its host: the laws on logs of a plant's broker, of the lists that `run_plant`
//! hands on (Sparkplug 3.0.0, chapter 5, over MQTT 3.1.1). Laws alone; there is no code here.
#![tactic(auto)]

pub mod laws;
