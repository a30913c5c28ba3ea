// What knows nothing of this engine: tests of numbers and lists, buffers of equal portions, and the laws of these and of pastes.
// There are no functions here.

#![tactic(auto)]
