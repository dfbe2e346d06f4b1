// The model: what a reader must believe. The definitions stand in specs/, the laws on them and the whole-day theorem in proofs/.
#![tactic(auto)]
