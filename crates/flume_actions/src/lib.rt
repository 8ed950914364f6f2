//! What the actions of parties say: which calls they are, and what those sent and got. Definitions
//! only, for contracts; `flume_laws` has the laws.
#![tactic(auto)]
