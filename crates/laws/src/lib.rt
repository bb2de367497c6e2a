// Facts about numbers and lists that no document names: see specs/. There is no code here.
#![tactic(auto)]
