// The Misra-Gries tracker of Graphene, as document 01 words it (step 2 of an access): the definitions, and what the rest
// knows of it. There are no functions here.

#![tactic(auto)]
