// Cases A to L and the sample bundle, computed through the definitions.

#![tactic(auto)]
