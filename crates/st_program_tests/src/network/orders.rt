// Two networks in which node 0 has the files of two entries and each other node receives them by
// messages: an `ask`, an offer of the provisional index file and a core index file that nobody
// asked for are delivered in six different orders, and then files are asked for and delivered until
// none is wanted. Each line precedes its reply, and `new` makes four new nodes. All was computed
// with Python's hashlib, base64, struct and json.
pub const ORDERS: &str = "\
new
at 0 content eyJvcGVyYXRpb25zIjp7ImNyZWF0ZSI6W3sic3VmZml4RGF0YSI6eyJkZWx0YUhhc2giOiJFaUM2ZUJhX2p3SFA2a0ZCUU41ZHJpSWpzQU5obzVZWGVweTBFUDloOGdBVnJRIiwicmVjb3ZlcnlDb21taXRtZW50IjoiRWlEanNNUkNtUHdjRkpyNzlNaVpiN2trSjY1QjVHU2JrMHlrbFprYmVGSzRWUSJ9fV19fQ
have EiA10dvb-_d3kAW7ki4Rzo6ZaD84v2bZZ4O2fJ21bh1ChA
at 0 content eyJvcGVyYXRpb25zIjp7ImNyZWF0ZSI6W3sic3VmZml4RGF0YSI6eyJkZWx0YUhhc2giOiJFaUE4WFY5akx4MnpMYUNhdFJkY3ZHQWRhM2MzVG1JVWJuLVpXamRpWTAyVlh3IiwicmVjb3ZlcnlDb21taXRtZW50IjoiRWlEanNNUkNtUHdjRkpyNzlNaVpiN2trSjY1QjVHU2JrMHlrbFprYmVGSzRWUSJ9fV19LCJwcm92aXNpb25hbEluZGV4RmlsZVVyaSI6IkVpQjFOcGZLakxpUGJ0LVptc1ptZ3RZLXBnR3p1Nzczall3ZGF5aldMZjAtNmcifQ
have EiDKRSOCHse36OLZZcLMDJ36RIoDlmQAxtCpw0Vbv_pJAw
at 0 content eyJjaHVua3MiOlt7ImNodW5rRmlsZVVyaSI6IkVpQ3NRU0FmdVAydnViOHh6YTN0aEd1MXJGMEtjWXhJaXBBTDlTNG8zTnNpQVEifV19
have EiB1NpfKjLiPbt-ZmsZmgtY-pgGzu773jYwdayjWLf0-6g
at 0 content eyJkZWx0YXMiOlt7InBhdGNoZXMiOlt7ImFjdGlvbiI6ImFkZC1zZXJ2aWNlcyIsInNlcnZpY2VzIjpbeyJpZCI6InMxIiwic2VydmljZUVuZHBvaW50IjoiaHR0cHM6Ly9leGFtcGxlLmNvbS8iLCJ0eXBlIjoiVCJ9XX1dLCJ1cGRhdGVDb21taXRtZW50IjoiRWlDNmVCYV9qd0hQNmtGQlFONWRyaUlqc0FOaG81WVhlcHkwRVA5aDhnQVZyUSJ9XX0
have EiCsQSAfuP2vub8xza3thGu1rF0KcYxIipAL9S4o3NsiAQ
at 0 anchor 1 1.EiA10dvb-_d3kAW7ki4Rzo6ZaD84v2bZZ4O2fJ21bh1ChA
anchored 0
at 0 anchor 1 1.EiDKRSOCHse36OLZZcLMDJ36RIoDlmQAxtCpw0Vbv_pJAw
anchored 1
at 1 anchor 1 1.EiA10dvb-_d3kAW7ki4Rzo6ZaD84v2bZZ4O2fJ21bh1ChA
anchored 0
at 1 anchor 1 1.EiDKRSOCHse36OLZZcLMDJ36RIoDlmQAxtCpw0Vbv_pJAw
anchored 1
at 2 anchor 1 1.EiA10dvb-_d3kAW7ki4Rzo6ZaD84v2bZZ4O2fJ21bh1ChA
anchored 0
at 2 anchor 1 1.EiDKRSOCHse36OLZZcLMDJ36RIoDlmQAxtCpw0Vbv_pJAw
anchored 1
at 3 anchor 1 1.EiA10dvb-_d3kAW7ki4Rzo6ZaD84v2bZZ4O2fJ21bh1ChA
anchored 0
at 3 anchor 1 1.EiDKRSOCHse36OLZZcLMDJ36RIoDlmQAxtCpw0Vbv_pJAw
anchored 1
ask 1 0
sent 1
offer 0 1 EiB1NpfKjLiPbt-ZmsZmgtY-pgGzu773jYwdayjWLf0-6g
sent 1
inject 0 1 A3sib3BlcmF0aW9ucyI6eyJjcmVhdGUiOlt7InN1ZmZpeERhdGEiOnsiZGVsdGFIYXNoIjoiRWlBOFhWOWpMeDJ6TGFDYXRSZGN2R0FkYTNjM1RtSVVibi1aV2pkaVkwMlZYdyIsInJlY292ZXJ5Q29tbWl0bWVudCI6IkVpRGpzTVJDbVB3Y0ZKcjc5TWlaYjdra0o2NUI1R1NiazB5a2xaa2JlRks0VlEifX1dfSwicHJvdmlzaW9uYWxJbmRleEZpbGVVcmkiOiJFaUIxTnBmS2pMaVBidC1abXNabWd0WS1wZ0d6dTc3M2pZd2RheWpXTGYwLTZnIn0
sent 1
deliver 0
sent 2
deliver 1
ignored
deliver 2
stored EiDKRSOCHse36OLZZcLMDJ36RIoDlmQAxtCpw0Vbv_pJAw
deliver 3
stored EiA10dvb-_d3kAW7ki4Rzo6ZaD84v2bZZ4O2fJ21bh1ChA
deliver 4
ignored
ask 1 0
sent 1
deliver 5
sent 1
deliver 6
stored EiB1NpfKjLiPbt-ZmsZmgtY-pgGzu773jYwdayjWLf0-6g
ask 1 0
sent 1
deliver 7
sent 1
deliver 8
stored EiCsQSAfuP2vub8xza3thGu1rF0KcYxIipAL9S4o3NsiAQ
at 1 wanted
wanted 0
at 1 resolve did:sidetree:EiATdX8Q5MV_plJJmuNAF_0nOfwoAX70r-tP5eSOPf86vA
resolved {\"didDocument\":{\"id\":\"did:sidetree:EiATdX8Q5MV_plJJmuNAF_0nOfwoAX70r-tP5eSOPf86vA\"},\"didDocumentMetadata\":{\"canonicalId\":\"did:sidetree:EiATdX8Q5MV_plJJmuNAF_0nOfwoAX70r-tP5eSOPf86vA\",\"method\":{\"published\":true,\"recoveryCommitment\":\"EiDjsMRCmPwcFJr79MiZb7kkJ65B5GSbk0yklZkbeFK4VQ\"}}}
at 1 resolve did:sidetree:EiBPOn7LUBWUVhugbEAIr6R1y-FxzC7-zPzDYQOGJ1Lfyw
resolved {\"didDocument\":{\"id\":\"did:sidetree:EiBPOn7LUBWUVhugbEAIr6R1y-FxzC7-zPzDYQOGJ1Lfyw\",\"service\":[{\"id\":\"#s1\",\"serviceEndpoint\":\"https://example.com/\",\"type\":\"T\"}]},\"didDocumentMetadata\":{\"canonicalId\":\"did:sidetree:EiBPOn7LUBWUVhugbEAIr6R1y-FxzC7-zPzDYQOGJ1Lfyw\",\"method\":{\"published\":true,\"recoveryCommitment\":\"EiDjsMRCmPwcFJr79MiZb7kkJ65B5GSbk0yklZkbeFK4VQ\",\"updateCommitment\":\"EiC6eBa_jwHP6kFBQN5driIjsANho5YXepy0EP9h8gAVrQ\"}}}
ask 2 0
sent 1
offer 0 2 EiB1NpfKjLiPbt-ZmsZmgtY-pgGzu773jYwdayjWLf0-6g
sent 1
inject 0 2 A3sib3BlcmF0aW9ucyI6eyJjcmVhdGUiOlt7InN1ZmZpeERhdGEiOnsiZGVsdGFIYXNoIjoiRWlBOFhWOWpMeDJ6TGFDYXRSZGN2R0FkYTNjM1RtSVVibi1aV2pkaVkwMlZYdyIsInJlY292ZXJ5Q29tbWl0bWVudCI6IkVpRGpzTVJDbVB3Y0ZKcjc5TWlaYjdra0o2NUI1R1NiazB5a2xaa2JlRks0VlEifX1dfSwicHJvdmlzaW9uYWxJbmRleEZpbGVVcmkiOiJFaUIxTnBmS2pMaVBidC1abXNabWd0WS1wZ0d6dTc3M2pZd2RheWpXTGYwLTZnIn0
sent 1
deliver 9
sent 2
deliver 11
stored EiDKRSOCHse36OLZZcLMDJ36RIoDlmQAxtCpw0Vbv_pJAw
deliver 10
sent 1
deliver 12
stored EiA10dvb-_d3kAW7ki4Rzo6ZaD84v2bZZ4O2fJ21bh1ChA
deliver 13
ignored
deliver 14
sent 1
deliver 15
stored EiB1NpfKjLiPbt-ZmsZmgtY-pgGzu773jYwdayjWLf0-6g
ask 2 0
sent 1
deliver 16
sent 1
deliver 17
stored EiCsQSAfuP2vub8xza3thGu1rF0KcYxIipAL9S4o3NsiAQ
at 2 wanted
wanted 0
at 2 resolve did:sidetree:EiATdX8Q5MV_plJJmuNAF_0nOfwoAX70r-tP5eSOPf86vA
resolved {\"didDocument\":{\"id\":\"did:sidetree:EiATdX8Q5MV_plJJmuNAF_0nOfwoAX70r-tP5eSOPf86vA\"},\"didDocumentMetadata\":{\"canonicalId\":\"did:sidetree:EiATdX8Q5MV_plJJmuNAF_0nOfwoAX70r-tP5eSOPf86vA\",\"method\":{\"published\":true,\"recoveryCommitment\":\"EiDjsMRCmPwcFJr79MiZb7kkJ65B5GSbk0yklZkbeFK4VQ\"}}}
at 2 resolve did:sidetree:EiBPOn7LUBWUVhugbEAIr6R1y-FxzC7-zPzDYQOGJ1Lfyw
resolved {\"didDocument\":{\"id\":\"did:sidetree:EiBPOn7LUBWUVhugbEAIr6R1y-FxzC7-zPzDYQOGJ1Lfyw\",\"service\":[{\"id\":\"#s1\",\"serviceEndpoint\":\"https://example.com/\",\"type\":\"T\"}]},\"didDocumentMetadata\":{\"canonicalId\":\"did:sidetree:EiBPOn7LUBWUVhugbEAIr6R1y-FxzC7-zPzDYQOGJ1Lfyw\",\"method\":{\"published\":true,\"recoveryCommitment\":\"EiDjsMRCmPwcFJr79MiZb7kkJ65B5GSbk0yklZkbeFK4VQ\",\"updateCommitment\":\"EiC6eBa_jwHP6kFBQN5driIjsANho5YXepy0EP9h8gAVrQ\"}}}
ask 3 0
sent 1
offer 0 3 EiB1NpfKjLiPbt-ZmsZmgtY-pgGzu773jYwdayjWLf0-6g
sent 1
inject 0 3 A3sib3BlcmF0aW9ucyI6eyJjcmVhdGUiOlt7InN1ZmZpeERhdGEiOnsiZGVsdGFIYXNoIjoiRWlBOFhWOWpMeDJ6TGFDYXRSZGN2R0FkYTNjM1RtSVVibi1aV2pkaVkwMlZYdyIsInJlY292ZXJ5Q29tbWl0bWVudCI6IkVpRGpzTVJDbVB3Y0ZKcjc5TWlaYjdra0o2NUI1R1NiazB5a2xaa2JlRks0VlEifX1dfSwicHJvdmlzaW9uYWxJbmRleEZpbGVVcmkiOiJFaUIxTnBmS2pMaVBidC1abXNabWd0WS1wZ0d6dTc3M2pZd2RheWpXTGYwLTZnIn0
sent 1
deliver 19
ignored
deliver 18
sent 2
deliver 20
stored EiDKRSOCHse36OLZZcLMDJ36RIoDlmQAxtCpw0Vbv_pJAw
deliver 21
stored EiA10dvb-_d3kAW7ki4Rzo6ZaD84v2bZZ4O2fJ21bh1ChA
deliver 22
ignored
ask 3 0
sent 1
deliver 23
sent 1
deliver 24
stored EiB1NpfKjLiPbt-ZmsZmgtY-pgGzu773jYwdayjWLf0-6g
ask 3 0
sent 1
deliver 25
sent 1
deliver 26
stored EiCsQSAfuP2vub8xza3thGu1rF0KcYxIipAL9S4o3NsiAQ
at 3 wanted
wanted 0
at 3 resolve did:sidetree:EiATdX8Q5MV_plJJmuNAF_0nOfwoAX70r-tP5eSOPf86vA
resolved {\"didDocument\":{\"id\":\"did:sidetree:EiATdX8Q5MV_plJJmuNAF_0nOfwoAX70r-tP5eSOPf86vA\"},\"didDocumentMetadata\":{\"canonicalId\":\"did:sidetree:EiATdX8Q5MV_plJJmuNAF_0nOfwoAX70r-tP5eSOPf86vA\",\"method\":{\"published\":true,\"recoveryCommitment\":\"EiDjsMRCmPwcFJr79MiZb7kkJ65B5GSbk0yklZkbeFK4VQ\"}}}
at 3 resolve did:sidetree:EiBPOn7LUBWUVhugbEAIr6R1y-FxzC7-zPzDYQOGJ1Lfyw
resolved {\"didDocument\":{\"id\":\"did:sidetree:EiBPOn7LUBWUVhugbEAIr6R1y-FxzC7-zPzDYQOGJ1Lfyw\",\"service\":[{\"id\":\"#s1\",\"serviceEndpoint\":\"https://example.com/\",\"type\":\"T\"}]},\"didDocumentMetadata\":{\"canonicalId\":\"did:sidetree:EiBPOn7LUBWUVhugbEAIr6R1y-FxzC7-zPzDYQOGJ1Lfyw\",\"method\":{\"published\":true,\"recoveryCommitment\":\"EiDjsMRCmPwcFJr79MiZb7kkJ65B5GSbk0yklZkbeFK4VQ\",\"updateCommitment\":\"EiC6eBa_jwHP6kFBQN5driIjsANho5YXepy0EP9h8gAVrQ\"}}}
at 0 resolve did:sidetree:EiATdX8Q5MV_plJJmuNAF_0nOfwoAX70r-tP5eSOPf86vA
resolved {\"didDocument\":{\"id\":\"did:sidetree:EiATdX8Q5MV_plJJmuNAF_0nOfwoAX70r-tP5eSOPf86vA\"},\"didDocumentMetadata\":{\"canonicalId\":\"did:sidetree:EiATdX8Q5MV_plJJmuNAF_0nOfwoAX70r-tP5eSOPf86vA\",\"method\":{\"published\":true,\"recoveryCommitment\":\"EiDjsMRCmPwcFJr79MiZb7kkJ65B5GSbk0yklZkbeFK4VQ\"}}}
at 0 resolve did:sidetree:EiBPOn7LUBWUVhugbEAIr6R1y-FxzC7-zPzDYQOGJ1Lfyw
resolved {\"didDocument\":{\"id\":\"did:sidetree:EiBPOn7LUBWUVhugbEAIr6R1y-FxzC7-zPzDYQOGJ1Lfyw\",\"service\":[{\"id\":\"#s1\",\"serviceEndpoint\":\"https://example.com/\",\"type\":\"T\"}]},\"didDocumentMetadata\":{\"canonicalId\":\"did:sidetree:EiBPOn7LUBWUVhugbEAIr6R1y-FxzC7-zPzDYQOGJ1Lfyw\",\"method\":{\"published\":true,\"recoveryCommitment\":\"EiDjsMRCmPwcFJr79MiZb7kkJ65B5GSbk0yklZkbeFK4VQ\",\"updateCommitment\":\"EiC6eBa_jwHP6kFBQN5driIjsANho5YXepy0EP9h8gAVrQ\"}}}
new
at 0 content eyJvcGVyYXRpb25zIjp7ImNyZWF0ZSI6W3sic3VmZml4RGF0YSI6eyJkZWx0YUhhc2giOiJFaUM2ZUJhX2p3SFA2a0ZCUU41ZHJpSWpzQU5obzVZWGVweTBFUDloOGdBVnJRIiwicmVjb3ZlcnlDb21taXRtZW50IjoiRWlEanNNUkNtUHdjRkpyNzlNaVpiN2trSjY1QjVHU2JrMHlrbFprYmVGSzRWUSJ9fV19fQ
have EiA10dvb-_d3kAW7ki4Rzo6ZaD84v2bZZ4O2fJ21bh1ChA
at 0 content eyJvcGVyYXRpb25zIjp7ImNyZWF0ZSI6W3sic3VmZml4RGF0YSI6eyJkZWx0YUhhc2giOiJFaUE4WFY5akx4MnpMYUNhdFJkY3ZHQWRhM2MzVG1JVWJuLVpXamRpWTAyVlh3IiwicmVjb3ZlcnlDb21taXRtZW50IjoiRWlEanNNUkNtUHdjRkpyNzlNaVpiN2trSjY1QjVHU2JrMHlrbFprYmVGSzRWUSJ9fV19LCJwcm92aXNpb25hbEluZGV4RmlsZVVyaSI6IkVpQjFOcGZLakxpUGJ0LVptc1ptZ3RZLXBnR3p1Nzczall3ZGF5aldMZjAtNmcifQ
have EiDKRSOCHse36OLZZcLMDJ36RIoDlmQAxtCpw0Vbv_pJAw
at 0 content eyJjaHVua3MiOlt7ImNodW5rRmlsZVVyaSI6IkVpQ3NRU0FmdVAydnViOHh6YTN0aEd1MXJGMEtjWXhJaXBBTDlTNG8zTnNpQVEifV19
have EiB1NpfKjLiPbt-ZmsZmgtY-pgGzu773jYwdayjWLf0-6g
at 0 content eyJkZWx0YXMiOlt7InBhdGNoZXMiOlt7ImFjdGlvbiI6ImFkZC1zZXJ2aWNlcyIsInNlcnZpY2VzIjpbeyJpZCI6InMxIiwic2VydmljZUVuZHBvaW50IjoiaHR0cHM6Ly9leGFtcGxlLmNvbS8iLCJ0eXBlIjoiVCJ9XX1dLCJ1cGRhdGVDb21taXRtZW50IjoiRWlDNmVCYV9qd0hQNmtGQlFONWRyaUlqc0FOaG81WVhlcHkwRVA5aDhnQVZyUSJ9XX0
have EiCsQSAfuP2vub8xza3thGu1rF0KcYxIipAL9S4o3NsiAQ
at 0 anchor 1 1.EiA10dvb-_d3kAW7ki4Rzo6ZaD84v2bZZ4O2fJ21bh1ChA
anchored 0
at 0 anchor 1 1.EiDKRSOCHse36OLZZcLMDJ36RIoDlmQAxtCpw0Vbv_pJAw
anchored 1
at 1 anchor 1 1.EiA10dvb-_d3kAW7ki4Rzo6ZaD84v2bZZ4O2fJ21bh1ChA
anchored 0
at 1 anchor 1 1.EiDKRSOCHse36OLZZcLMDJ36RIoDlmQAxtCpw0Vbv_pJAw
anchored 1
at 2 anchor 1 1.EiA10dvb-_d3kAW7ki4Rzo6ZaD84v2bZZ4O2fJ21bh1ChA
anchored 0
at 2 anchor 1 1.EiDKRSOCHse36OLZZcLMDJ36RIoDlmQAxtCpw0Vbv_pJAw
anchored 1
at 3 anchor 1 1.EiA10dvb-_d3kAW7ki4Rzo6ZaD84v2bZZ4O2fJ21bh1ChA
anchored 0
at 3 anchor 1 1.EiDKRSOCHse36OLZZcLMDJ36RIoDlmQAxtCpw0Vbv_pJAw
anchored 1
ask 1 0
sent 1
offer 0 1 EiB1NpfKjLiPbt-ZmsZmgtY-pgGzu773jYwdayjWLf0-6g
sent 1
inject 0 1 A3sib3BlcmF0aW9ucyI6eyJjcmVhdGUiOlt7InN1ZmZpeERhdGEiOnsiZGVsdGFIYXNoIjoiRWlBOFhWOWpMeDJ6TGFDYXRSZGN2R0FkYTNjM1RtSVVibi1aV2pkaVkwMlZYdyIsInJlY292ZXJ5Q29tbWl0bWVudCI6IkVpRGpzTVJDbVB3Y0ZKcjc5TWlaYjdra0o2NUI1R1NiazB5a2xaa2JlRks0VlEifX1dfSwicHJvdmlzaW9uYWxJbmRleEZpbGVVcmkiOiJFaUIxTnBmS2pMaVBidC1abXNabWd0WS1wZ0d6dTc3M2pZd2RheWpXTGYwLTZnIn0
sent 1
deliver 1
ignored
deliver 2
stored EiDKRSOCHse36OLZZcLMDJ36RIoDlmQAxtCpw0Vbv_pJAw
deliver 0
sent 2
deliver 3
stored EiA10dvb-_d3kAW7ki4Rzo6ZaD84v2bZZ4O2fJ21bh1ChA
deliver 4
ignored
ask 1 0
sent 1
deliver 5
sent 1
deliver 6
stored EiB1NpfKjLiPbt-ZmsZmgtY-pgGzu773jYwdayjWLf0-6g
ask 1 0
sent 1
deliver 7
sent 1
deliver 8
stored EiCsQSAfuP2vub8xza3thGu1rF0KcYxIipAL9S4o3NsiAQ
at 1 wanted
wanted 0
at 1 resolve did:sidetree:EiATdX8Q5MV_plJJmuNAF_0nOfwoAX70r-tP5eSOPf86vA
resolved {\"didDocument\":{\"id\":\"did:sidetree:EiATdX8Q5MV_plJJmuNAF_0nOfwoAX70r-tP5eSOPf86vA\"},\"didDocumentMetadata\":{\"canonicalId\":\"did:sidetree:EiATdX8Q5MV_plJJmuNAF_0nOfwoAX70r-tP5eSOPf86vA\",\"method\":{\"published\":true,\"recoveryCommitment\":\"EiDjsMRCmPwcFJr79MiZb7kkJ65B5GSbk0yklZkbeFK4VQ\"}}}
at 1 resolve did:sidetree:EiBPOn7LUBWUVhugbEAIr6R1y-FxzC7-zPzDYQOGJ1Lfyw
resolved {\"didDocument\":{\"id\":\"did:sidetree:EiBPOn7LUBWUVhugbEAIr6R1y-FxzC7-zPzDYQOGJ1Lfyw\",\"service\":[{\"id\":\"#s1\",\"serviceEndpoint\":\"https://example.com/\",\"type\":\"T\"}]},\"didDocumentMetadata\":{\"canonicalId\":\"did:sidetree:EiBPOn7LUBWUVhugbEAIr6R1y-FxzC7-zPzDYQOGJ1Lfyw\",\"method\":{\"published\":true,\"recoveryCommitment\":\"EiDjsMRCmPwcFJr79MiZb7kkJ65B5GSbk0yklZkbeFK4VQ\",\"updateCommitment\":\"EiC6eBa_jwHP6kFBQN5driIjsANho5YXepy0EP9h8gAVrQ\"}}}
ask 2 0
sent 1
offer 0 2 EiB1NpfKjLiPbt-ZmsZmgtY-pgGzu773jYwdayjWLf0-6g
sent 1
inject 0 2 A3sib3BlcmF0aW9ucyI6eyJjcmVhdGUiOlt7InN1ZmZpeERhdGEiOnsiZGVsdGFIYXNoIjoiRWlBOFhWOWpMeDJ6TGFDYXRSZGN2R0FkYTNjM1RtSVVibi1aV2pkaVkwMlZYdyIsInJlY292ZXJ5Q29tbWl0bWVudCI6IkVpRGpzTVJDbVB3Y0ZKcjc5TWlaYjdra0o2NUI1R1NiazB5a2xaa2JlRks0VlEifX1dfSwicHJvdmlzaW9uYWxJbmRleEZpbGVVcmkiOiJFaUIxTnBmS2pMaVBidC1abXNabWd0WS1wZ0d6dTc3M2pZd2RheWpXTGYwLTZnIn0
sent 1
deliver 11
stored EiDKRSOCHse36OLZZcLMDJ36RIoDlmQAxtCpw0Vbv_pJAw
deliver 9
sent 2
deliver 10
sent 1
deliver 12
stored EiA10dvb-_d3kAW7ki4Rzo6ZaD84v2bZZ4O2fJ21bh1ChA
deliver 13
ignored
deliver 14
sent 1
deliver 15
stored EiB1NpfKjLiPbt-ZmsZmgtY-pgGzu773jYwdayjWLf0-6g
ask 2 0
sent 1
deliver 16
sent 1
deliver 17
stored EiCsQSAfuP2vub8xza3thGu1rF0KcYxIipAL9S4o3NsiAQ
at 2 wanted
wanted 0
at 2 resolve did:sidetree:EiATdX8Q5MV_plJJmuNAF_0nOfwoAX70r-tP5eSOPf86vA
resolved {\"didDocument\":{\"id\":\"did:sidetree:EiATdX8Q5MV_plJJmuNAF_0nOfwoAX70r-tP5eSOPf86vA\"},\"didDocumentMetadata\":{\"canonicalId\":\"did:sidetree:EiATdX8Q5MV_plJJmuNAF_0nOfwoAX70r-tP5eSOPf86vA\",\"method\":{\"published\":true,\"recoveryCommitment\":\"EiDjsMRCmPwcFJr79MiZb7kkJ65B5GSbk0yklZkbeFK4VQ\"}}}
at 2 resolve did:sidetree:EiBPOn7LUBWUVhugbEAIr6R1y-FxzC7-zPzDYQOGJ1Lfyw
resolved {\"didDocument\":{\"id\":\"did:sidetree:EiBPOn7LUBWUVhugbEAIr6R1y-FxzC7-zPzDYQOGJ1Lfyw\",\"service\":[{\"id\":\"#s1\",\"serviceEndpoint\":\"https://example.com/\",\"type\":\"T\"}]},\"didDocumentMetadata\":{\"canonicalId\":\"did:sidetree:EiBPOn7LUBWUVhugbEAIr6R1y-FxzC7-zPzDYQOGJ1Lfyw\",\"method\":{\"published\":true,\"recoveryCommitment\":\"EiDjsMRCmPwcFJr79MiZb7kkJ65B5GSbk0yklZkbeFK4VQ\",\"updateCommitment\":\"EiC6eBa_jwHP6kFBQN5driIjsANho5YXepy0EP9h8gAVrQ\"}}}
ask 3 0
sent 1
offer 0 3 EiB1NpfKjLiPbt-ZmsZmgtY-pgGzu773jYwdayjWLf0-6g
sent 1
inject 0 3 A3sib3BlcmF0aW9ucyI6eyJjcmVhdGUiOlt7InN1ZmZpeERhdGEiOnsiZGVsdGFIYXNoIjoiRWlBOFhWOWpMeDJ6TGFDYXRSZGN2R0FkYTNjM1RtSVVibi1aV2pkaVkwMlZYdyIsInJlY292ZXJ5Q29tbWl0bWVudCI6IkVpRGpzTVJDbVB3Y0ZKcjc5TWlaYjdra0o2NUI1R1NiazB5a2xaa2JlRks0VlEifX1dfSwicHJvdmlzaW9uYWxJbmRleEZpbGVVcmkiOiJFaUIxTnBmS2pMaVBidC1abXNabWd0WS1wZ0d6dTc3M2pZd2RheWpXTGYwLTZnIn0
sent 1
deliver 20
stored EiDKRSOCHse36OLZZcLMDJ36RIoDlmQAxtCpw0Vbv_pJAw
deliver 19
sent 1
deliver 18
sent 2
deliver 21
sent 1
deliver 22
stored EiA10dvb-_d3kAW7ki4Rzo6ZaD84v2bZZ4O2fJ21bh1ChA
deliver 23
ignored
deliver 24
stored EiB1NpfKjLiPbt-ZmsZmgtY-pgGzu773jYwdayjWLf0-6g
ask 3 0
sent 1
deliver 25
sent 1
deliver 26
stored EiCsQSAfuP2vub8xza3thGu1rF0KcYxIipAL9S4o3NsiAQ
at 3 wanted
wanted 0
at 3 resolve did:sidetree:EiATdX8Q5MV_plJJmuNAF_0nOfwoAX70r-tP5eSOPf86vA
resolved {\"didDocument\":{\"id\":\"did:sidetree:EiATdX8Q5MV_plJJmuNAF_0nOfwoAX70r-tP5eSOPf86vA\"},\"didDocumentMetadata\":{\"canonicalId\":\"did:sidetree:EiATdX8Q5MV_plJJmuNAF_0nOfwoAX70r-tP5eSOPf86vA\",\"method\":{\"published\":true,\"recoveryCommitment\":\"EiDjsMRCmPwcFJr79MiZb7kkJ65B5GSbk0yklZkbeFK4VQ\"}}}
at 3 resolve did:sidetree:EiBPOn7LUBWUVhugbEAIr6R1y-FxzC7-zPzDYQOGJ1Lfyw
resolved {\"didDocument\":{\"id\":\"did:sidetree:EiBPOn7LUBWUVhugbEAIr6R1y-FxzC7-zPzDYQOGJ1Lfyw\",\"service\":[{\"id\":\"#s1\",\"serviceEndpoint\":\"https://example.com/\",\"type\":\"T\"}]},\"didDocumentMetadata\":{\"canonicalId\":\"did:sidetree:EiBPOn7LUBWUVhugbEAIr6R1y-FxzC7-zPzDYQOGJ1Lfyw\",\"method\":{\"published\":true,\"recoveryCommitment\":\"EiDjsMRCmPwcFJr79MiZb7kkJ65B5GSbk0yklZkbeFK4VQ\",\"updateCommitment\":\"EiC6eBa_jwHP6kFBQN5driIjsANho5YXepy0EP9h8gAVrQ\"}}}
at 0 resolve did:sidetree:EiATdX8Q5MV_plJJmuNAF_0nOfwoAX70r-tP5eSOPf86vA
resolved {\"didDocument\":{\"id\":\"did:sidetree:EiATdX8Q5MV_plJJmuNAF_0nOfwoAX70r-tP5eSOPf86vA\"},\"didDocumentMetadata\":{\"canonicalId\":\"did:sidetree:EiATdX8Q5MV_plJJmuNAF_0nOfwoAX70r-tP5eSOPf86vA\",\"method\":{\"published\":true,\"recoveryCommitment\":\"EiDjsMRCmPwcFJr79MiZb7kkJ65B5GSbk0yklZkbeFK4VQ\"}}}
at 0 resolve did:sidetree:EiBPOn7LUBWUVhugbEAIr6R1y-FxzC7-zPzDYQOGJ1Lfyw
resolved {\"didDocument\":{\"id\":\"did:sidetree:EiBPOn7LUBWUVhugbEAIr6R1y-FxzC7-zPzDYQOGJ1Lfyw\",\"service\":[{\"id\":\"#s1\",\"serviceEndpoint\":\"https://example.com/\",\"type\":\"T\"}]},\"didDocumentMetadata\":{\"canonicalId\":\"did:sidetree:EiBPOn7LUBWUVhugbEAIr6R1y-FxzC7-zPzDYQOGJ1Lfyw\",\"method\":{\"published\":true,\"recoveryCommitment\":\"EiDjsMRCmPwcFJr79MiZb7kkJ65B5GSbk0yklZkbeFK4VQ\",\"updateCommitment\":\"EiC6eBa_jwHP6kFBQN5driIjsANho5YXepy0EP9h8gAVrQ\"}}}
";
