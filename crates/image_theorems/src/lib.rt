// What holds of every accepted image: its blocks form a forest, 404 exactly, and the prefixes of a network. Nothing runs here.

#![tactic(auto)]
