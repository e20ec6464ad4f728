// What calls are lent, as the records of the rules: specs/.
