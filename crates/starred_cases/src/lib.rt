// The starred cases of document 01 are shown of the definitions (specs/Starred.antt); no code is needed for it.
#![tactic(auto)]
