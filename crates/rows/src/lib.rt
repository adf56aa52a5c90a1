// Rows of writes to the words, and what stands in the words behind them. There is no code here.
#![tactic(auto)]
