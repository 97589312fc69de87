// What a reader of the demands reads: theorems over the definitions and over the contracts of every public call; no code.
// Each folder of proofs/ has one idea: `promises` (each promise fixes its outcome), `refusals` (each number exactly when),
// `read_back` (what is built reads back), `demand_3` (what follows from demand 3), `fields` (what FCtrl and a view show),
// `examples` (of the standards and of docs/RULES.md), `versions` (the wrong versions that the rules name).
#![tactic(auto)]
