// Laws of what the open calls answer: the range of a gate's and a curve's answers to accepted
// input, and whole runs of note levels. No code.
#![tactic(auto)]
