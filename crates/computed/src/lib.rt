// No code: the cases that document 01 marks [p], and cases of document 02's requests, computed by the definitions.

#![tactic(auto)]
