// Laws of a walk's definitions, for its calls and its theorems: proofs/. There is no code here.
