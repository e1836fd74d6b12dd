// Document 01's worked run and its proved examples, as theorems about the definitions. There is no code here: specs/Proved.antt has the list.
#![tactic(auto)]
