// The laws over whole runs, in `specs/`: what holds after every call of any list of calls. They are stated and not proved yet.
#![tactic(auto)]
